ghost use Rattle.std.specs.Prelude.{◌≡◌, ◌≢◌, ◌≤◌, ◌<◌, ◌+◌, ◌*◌, ◌^◌, ◌⊎◌, ℕ, List, length, slice_index};
ghost use Rattle.ceu_mem.specs.declared.gate.Gate.{Gate};
ghost use Rattle.ceu_mem.specs.Bytes.{number_at, with_number};
ghost use Rattle.ceu_mem.specs.Memory.{gate_at, with_gate, IsGate};

/// A number that was written is read, the length stays, and each byte outside stays.
pub fn numbers_stay_apart()
    ensures written { (k n : ℕ) (bytes : List ℕ) (at : ℕ) → n < 256 ^ k → at + k ≤ length bytes → number_at k (with_number k n bytes at) at ≡ n }
    ensures length { (k n : ℕ) (bytes : List ℕ) (at : ℕ) → length (with_number k n bytes at) ≡ length bytes }
    ensures outside { (k n : ℕ) (bytes : List ℕ) (at i : ℕ) → (i < at) ⊎ (at + k ≤ i) → slice_index (with_number k n bytes at) i ≡ slice_index bytes i }
{}

/// A gate that was written is read, and the other gates and each byte outside stay.
pub fn gates_stay_apart()
    ensures written { (b : ℕ) (gate : Gate) (bytes : List ℕ) (i : ℕ) → IsGate gate → b + 19 * i + 19 ≤ length bytes → gate_at b (with_gate b gate bytes i) i ≡ gate }
    ensures others { (b : ℕ) (gate : Gate) (bytes : List ℕ) (i j : ℕ) → j ≢ i → gate_at b (with_gate b gate bytes i) j ≡ gate_at b bytes j }
    ensures length { (b : ℕ) (gate : Gate) (bytes : List ℕ) (i : ℕ) → length (with_gate b gate bytes i) ≡ length bytes }
    ensures outside { (b : ℕ) (gate : Gate) (bytes : List ℕ) (i k : ℕ) → (k < b + 19 * i) ⊎ (b + 19 * i + 19 ≤ k) → slice_index (with_gate b gate bytes i) k ≡ slice_index bytes k }
{}
