// Laws on images and memories that are safe.
ghost use Rattle.std.specs.Prelude.{◌≡◌, ◌≢◌, ◌+◌, ℕ, List};
ghost use Rattle.ceu_code.specs.declared.image.Image.{Image};
ghost use Rattle.ceu_isa.specs.Commands.{done};
ghost use Rattle.ceu_isa.specs.Layout.{reacting, state_of, waiting, with_state};
ghost use Rattle.ceu_isa.specs.Reactions.{AllClosed, Lost, Resumes, Waits, next, reaction};
ghost use Rattle.ceu_isa.specs.Safety.{CanTurn, Fits, IsCommand, IsSafe};
ghost use Rattle.ceu_isa.specs.Turns.{Machine, Paused, turned};
ghost use Rattle.ceu_machine.specs.States.{plain};
ghost use Rattle.ceu_tree.specs.declared.command.Command.{Command};

/// In a reaction of a safe machine the turn of the gate that comes next is allowed, and ends.
pub fn next_turn_is_allowed()
    ensures { (image : Image) (bytes : List ℕ) (gate level : ℕ) (m : Machine) → IsSafe image bytes → state_of bytes ≡ reacting → next image (plain bytes) ≡ Resumes gate level m → CanTurn image m.bytes gate }
{}

/// A safe machine is still safe after a turn that pauses, after its levels have closed, and after a command. Of a turn and a command it is
/// asked that the bytes are still those of a machine of the image, and that their header says how the machine stands.
pub fn safe_is_kept()
    ensures turn { (image : Image) (bytes : List ℕ) (gate level : ℕ) (m j : Machine) → IsSafe image bytes → state_of bytes ≡ reacting → next image (plain bytes) ≡ Resumes gate level m → turned image gate (plain m.bytes) ≡ Paused j → Fits image j.bytes → state_of j.bytes ≡ reacting → IsSafe image j.bytes }
    ensures levels { (image : Image) (bytes : List ℕ) (m : Machine) → IsSafe image bytes → state_of bytes ≡ reacting → next image (plain bytes) ≡ AllClosed m → IsSafe image (with_state waiting m.bytes) }
    ensures command { (image : Image) (bytes : List ℕ) (x : Command) (m : Machine) → IsSafe image bytes → state_of bytes ≡ waiting → IsCommand image x → done image x (Waits (plain bytes)) ≡ Waits m → Fits image m.bytes → state_of m.bytes ≡ waiting → IsSafe image m.bytes }
{}

/// A reaction that does nothing that isn't allowed within a number of turns is the same with more turns.
pub fn more_turns_change_nothing()
    ensures { (image : Image) (n more : ℕ) (m : Machine) → reaction image n m ≢ Lost → reaction image (n + more) m ≡ reaction image n m }
{}
