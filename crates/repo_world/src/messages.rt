//! Messages.

/// A message: a request of a client, by its place among those that the client sent, or a reply to the client, by its
/// place among those that the store gave it. Clients, requests and replies are counted from 0.
#[derive(Clone, Copy, Debug, PartialEq, Eq)]
pub enum Message {
    Asked { client: usize, request: usize },
    Said { client: usize, reply: usize },
}
