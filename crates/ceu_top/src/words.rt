// The words of the command line: the program's name, the mode and the file.
ghost use Rattle.std.specs.Prelude.{◌≡◌, Some, None, MatchOption};
ghost use Rattle.ceu_top.specs.Command as spec;

/// What is asked for with a file.
#[derive(Clone, Copy, Debug, PartialEq, Eq)]
pub enum Mode {
    /// The run of the program on the script.
    Run,
    /// The memory line of a program that breaks no rule.
    Check,
    /// The memory line of such a program, and behind it where its slots lie and which gates its statements have.
    List,
    /// The program in the printer's form. The rules on tokens and on grammar alone are asked.
    Tidy,
    /// The listing of the file as a compiled image.
    Show,
}

#[tactic(auto, unfolding(crate::specs::Command::mode_of))]
fn mode_of(name: &str) -> Option<Mode>
    ensures { result ≡ spec.mode_of name.now }
{
    if name == "run" {
        Some(Mode::Run)
    } else if name == "check" {
        Some(Mode::Check)
    } else if name == "list" {
        Some(Mode::List)
    } else if name == "tidy" {
        Some(Mode::Tidy)
    } else if name == "show" {
        Some(Mode::Show)
    } else {
        None
    }
}

/// The mode and the file that the words ask for.
pub(crate) fn command_of(words: &[String]) -> Option<(Mode, &str)>
    ensures { MatchOption result (spec.command_of words.now ≡ None) (λ command. spec.command_of words.now ≡ Some (command.0, command.1.now)) }
{
    match words {
        [_, mode, file] => match mode_of(mode.as_str()) {
            Some(mode) => Some((mode, file.as_str())),
            None => None,
        },
        _ => None,
    }
}
