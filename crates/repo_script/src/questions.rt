//! What somebody who is no client asks for.

ghost use Rattle.std.specs.Prelude.{◌≡◌, map};
ghost use Rattle.repo_script.specs.Lines.{question_of, question_with};

use crate::arguments::{number_and_kind, two_numbers};
use crate::lines::Question;
use crate::tables::topic_of;
use crate::verbs::Topic;
use repo_name::Token;

/// What is asked for of a topic, by the words left.
fn question_with(topic: Topic, left: &[&str]) -> Option<Question>
    ensures { result ≡ question_with topic (map (λ w. w.now) left.now) }
{
    match topic {
        Topic::Ticket if left.is_empty() => Some(Question::Ticket),
        Topic::Locks if left.is_empty() => Some(Question::Locks),
        Topic::Lock => {
            let (token, exclusive) = number_and_kind(left)?;
            let token = Token(token);
            Some(Question::Lock { token, exclusive })
        }
        Topic::Refresh => {
            let (token, time) = two_numbers(left)?;
            let token = Token(token);
            Some(Question::Refresh { token, time })
        }
        _ => None,
    }
}

/// What some words ask for.
pub fn question_of(words: &[&str]) -> Option<Question>
    ensures { result ≡ question_of (map (λ w. w.now) words.now) }
{
    let [word, left @ ..] = words else {
        return None;
    };
    question_with(topic_of(*word)?, left)
}
