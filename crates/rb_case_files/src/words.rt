//! `Options`: what the words of a case's options ask for.

use rb_core::Config;
use rb_script::{Answering, number};

/// The limits, the way of answering and the number of subscribers that a case runs under.
#[derive(Clone, Copy, Debug)]
pub struct Options {
    pub config: Config,
    pub how: Answering,
    pub subscribers: u64,
}

impl Options {
    /// The options of these words, such as `--batch 1 --strict`; the program's defaults where there
    /// are none. Returns `None` if a word is none of an option, or a limit is out of its range.
    pub fn of(words: &[u8]) -> Option<Options> {
        let mut numbers = [16, 4, 10, 65_536, 64, 1, 1];
        let mut how = Answering::plain();
        let mut option: Option<usize> = None;
        for word in words.split(|byte| byte.is_ascii_whitespace()) {
            if word.is_empty() {
                continue;
            }
            if let Some(place) = option {
                *numbers.get_mut(place)? = number(word)?;
                option = None;
                continue;
            }
            match word {
                b"--numbers" => how.numbers = true,
                b"--strict" => how.strict = true,
                _ => option = Some(place(word)?),
            }
        }
        if option.is_some() {
            return None;
        }
        let [batch, window, timeout, capacity, intake, appliers, _] = numbers;
        let config = Config::new(batch, window, timeout, capacity, intake, appliers).ok()?;
        let [.., subscribers] = numbers;
        Some(Options {
            config,
            how,
            subscribers,
        })
    }
}

// The number that an option names.
fn place(option: &[u8]) -> Option<usize> {
    match option {
        b"--batch" => Some(0),
        b"--window" => Some(1),
        b"--timeout" => Some(2),
        b"--capacity" => Some(3),
        b"--intake" => Some(4),
        b"--appliers" => Some(5),
        b"--subscribers" => Some(6),
        _ => None,
    }
}
