//! What the words before `--` ask for.
use std::alloc::{AllocError, Global};

/// What is asked for, each thing by its name and a number, and the words of the command line.
#[derive(Drop)]
pub struct Asked<'a> {
    pub things: Vec<(&'a str, u32)>,
    pub words: Vec<&'a str>,
}

/// What a word `NAME=NUMBER` or `NAME` asks for.
fn thing_of<'a>(word: &'a str) -> (&'a str, u32) {
    let (name, number) = word.split_once('=').unwrap_or((word, "1"));
    (name, number.parse().unwrap_or(0))
}

impl<'a> Asked<'a> {
    /// What the words of the program ask for.
    pub fn new(alloc: Global, texts: &'a [String]) -> Result<Asked<'a>, AllocError> {
        let mut asked = Asked {
            things: Vec::new(alloc),
            words: Vec::new(alloc),
        };
        let mut is_behind = false;
        for text in texts {
            let word = text.as_str();
            if is_behind {
                asked.words.push(word)?;
            } else if word == "--" {
                is_behind = true;
            } else {
                asked.things.push(thing_of(word))?;
            }
        }
        Ok(asked)
    }

    /// The number of what is asked for by a name, or 0.
    pub fn number(&self, name: &str) -> u32 {
        for (asked, number) in &self.things {
            if *asked == name {
                return *number;
            }
        }
        0
    }
}
