// Which calls of an object in memory fail.
ghost use Rattle.std.specs.Prelude.{◌≡◌};
ghost use Rattle.ceu_io.specs.Calls.{is_listed as listed};

pub fn is_listed(calls: &[u32], call: u64) -> bool
    ensures { result ≡ listed calls.now call }
{
    calls.iter().any(|other| u64::from(*other) == call)
}
