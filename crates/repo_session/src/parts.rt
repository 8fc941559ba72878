//! What a part of a job makes of a reply.

use crate::jobs::Step;

/// What a reply comes to, to a part that reads for a job.
#[derive(Drop)]
pub enum Came<T> {
    /// All that the part reads came, and this of it.
    All(T),
    /// The job does this: it asks for more; it ends, by what the reply brought; or it passes on a reply that is a refusal, or of
    /// another sort than the request wants.
    Step(Step),
}
