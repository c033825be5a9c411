//! The words that the program is given.

ghost use Rattle.std.specs.Prelude.{◌≡◌};
ghost use Rattle.std.specs.List.{list_all};
ghost use Rattle.dfs_record.specs.Name.{is_digit};
ghost use Rattle.deltafs.specs.Words.{creates_of, command_of};

/// What the words ask for.
#[derive(Clone, Copy, Debug, PartialEq, Eq)]
pub enum Command {
    /// To work the script that the source has left, and to say each reply.
    Run,
    /// To work the generated script with so many creates, and to say the summary of the replies.
    Gen(u32),
}

const MOST_CREATES: u32 = 1_000_000;

const MOST_DIGITS: usize = 20;

/// What the words ask for, if they have one of the two forms.
pub fn command_of(words: &[String]) -> Option<Command>
    ensures { result ≡ command_of words.now }
{
    match words {
        [word] if word.as_str() == "run" => Some(Command::Run),
        [word, number] if word.as_str() == "gen" => creates_of(number).map(Command::Gen),
        _ => None,
    }
}

// A number of creates: 1 to 20 decimal digits, worth at most 1,000,000.
fn creates_of(word: &str) -> Option<u32>
    ensures { result ≡ creates_of word.now }
{
    if word.len() > MOST_DIGITS || !has_digits(word.as_bytes()) {
        return None;
    }
    match word.parse::<u32>() {
        Ok(creates) if creates <= MOST_CREATES => Some(creates),
        _ => None,
    }
}

fn has_digits(word: &[u8]) -> bool
    ensures { result ≡ list_all is_digit word.now }
{
    word.iter().all(|byte| *byte >= b'0' && *byte <= b'9')
}
