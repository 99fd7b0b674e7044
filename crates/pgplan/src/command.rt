//! A command, and the words that are one.

ghost use Rattle.std.specs.Prelude.{◌≡◌, ◌≢◌, ◌↔◌, ℕ, IfSome, MatchOption, Some, None, codes, map};
ghost use Rattle.std.specs.String.{string_bytes};
ghost use Rattle.pgplan.specs.Commands.{AreNoCommand, AreRunWords, AreSampleWords, IsNumberWord};

/// What the program is asked to do.
#[derive(Clone, Copy, Debug, PartialEq, Eq)]
pub enum Command {
    /// To read a script and to work it.
    Run,
    /// To work the script that is made from this number, and to sum up its answers.
    Sample(u64),
}

/// What the words after the program's own name ask for: the one word `run`, or `sample` and a number below 2^64 in one to 20
/// decimal digits, which may begin with zeros. None exactly where they are neither, which an option or one more word is too.
pub fn read_command(words: &[String]) -> Option<Command>
    ensures run { result ≡ Some Command.Run ↔ AreRunWords words.now }
    ensures sample { (n : ℕ) → (result ≡ Some (Command.Sample n)) ↔ AreSampleWords n words.now }
    ensures none { (result ≡ None) ↔ AreNoCommand (map string_bytes words.now) }
{
    match words {
        [word] => run_command(word.as_str()),
        [word, number] => sample_command(word.as_str(), number.as_str()),
        _ => None,
    }
}

/// What one word asks for.
fn run_command(word: &str) -> Option<Command>
    ensures { MatchOption result (word.now ≢ codes "run") (λ command.
        (command ≡ Command.Run) × (word.now ≡ codes "run")) }
{
    if word == "run" {
        Some(Command::Run)
    } else {
        None
    }
}

/// What two words ask for.
fn sample_command(word: &str, number: &str) -> Option<Command>
    ensures some { IfSome result (λ command. (n : ℕ) ×
        (command ≡ Command.Sample n) × (word.now ≡ codes "sample") × IsNumberWord n number.now) }
    ensures none { result ≡ None → (n : ℕ) → word.now ≡ codes "sample" →
        ¬ IsNumberWord n number.now }
{
    if word != "sample" {
        return None;
    }
    match number_of(number) {
        Some(n) => Some(Command::Sample(n)),
        None => None,
    }
}

/// The number that a word writes.
fn number_of(word: &str) -> Option<u64>
    ensures some { IfSome result (λ n. IsNumberWord n word.now) }
    ensures none { result ≡ None → (n : ℕ) → ¬ IsNumberWord n word.now }
{
    if word.len() > 20 || word.starts_with('+') {
        return None;
    }
    match word.parse::<u64>() {
        Ok(n) => Some(n),
        Err(_) => None,
    }
}
