//! What a token of a loop names: a listener, or an end of a connection.

use mio::Token;

/// What a token names, by its number or its key.
#[derive(Clone, Copy)]
pub enum Origin {
    Listener(usize),
    Client(usize),
    Backend(usize),
    /// The client's end of a connection in http mode.
    Session(usize),
    /// A connection to a backend in http mode.
    Link(usize),
}

/// Returns the token of a listener.
pub fn listener_token(number: usize) -> Token {
    Token(usize::MAX.wrapping_sub(number))
}

/// Returns the token of the client's end of a connection.
pub fn client_token(key: usize) -> Token {
    Token(key.wrapping_mul(4))
}

/// Returns the token of the backend's end of a connection.
pub fn backend_token(key: usize) -> Token {
    Token(key.wrapping_mul(4).wrapping_add(1))
}

/// Returns the token of the client's end of a connection in http mode.
pub fn session_token(key: usize) -> Token {
    Token(key.wrapping_mul(4).wrapping_add(2))
}

/// Returns the token of a connection to a backend in http mode.
pub fn link_token(number: usize) -> Token {
    Token(number.wrapping_mul(4).wrapping_add(3))
}

/// Returns what a token names, where there are so many listeners.
pub fn named(token: Token, listeners: usize) -> Origin {
    let number = usize::MAX.wrapping_sub(token.0);
    if number < listeners {
        return Origin::Listener(number);
    }
    let key = token.0 >> 2;
    match token.0 & 3 {
        0 => Origin::Client(key),
        1 => Origin::Backend(key),
        2 => Origin::Session(key),
        _ => Origin::Link(key),
    }
}
