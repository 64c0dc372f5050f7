//! Where a body ends, over whatever pieces its bytes come in. They are passed on as they came.
ghost use Rattle.std.specs.Prelude.{true, false, ◌≡◌, ◌≢◌, ◌↔◌, ◌⊎◌, ◌+◌, ◌*◌, ℕ, ◌<◌, ◌≤◌, List, [], ◌++◌, length, take, IsTrue, IfOk};
ghost use Rattle.std.specs.Prelude.{OnErr, MatchOption};
ghost use Rattle.std.specs.Char.{is_ascii_hexdigit, digit_value};
ghost use Rattle.lb_proxy.specs.Http.Chunked.{IsBody, AfterLine};
ghost use Rattle.lb_proxy.specs.Http.Body.{Remains, Follows, Blocks, Passes, BlocksAll, Completes, IsEnded};

use crate::http::framing::Framing;
use httparse::{is_header_name_token, is_header_value_token};

// The most digits that the size of a chunk may have.
const DIGIT_LIMIT: u8 = 16;

// Behind a number that isn't below this one no digit may come.
const VALUE_LIMIT: u64 = 1152921504606846976;

// The most bytes that the extension of a chunk may have.
const EXTENSION_LIMIT: u64 = 4096;

// The most bytes that the trailers may have together, with their line ends.
const TRAILER_LIMIT: u64 = 65536;

/// The bytes are no body.
#[derive(Clone, Copy)]
pub struct BadBody;

/// What comes next of the frame around what a body in chunks says.
#[derive(Clone, Copy)]
pub(crate) enum Frame {
    /// The line of a chunk; so many digits of its size came, and what they write.
    Size(u8, u64),
    /// The rest of a chunk's extension; the chunk's size, and how many bytes the extension may still have.
    Extension(u64, u64),
    /// The line feed of a chunk's line; the chunk's size.
    SizeFeed(u64),
    /// The carriage return behind a chunk.
    ContentReturn,
    /// The line feed behind a chunk.
    ContentFeed,
    /// A trailer or the end; how many bytes trailers may still have.
    Trailer(u64),
    /// The rest of a trailer from within its name on.
    Name(u64),
    /// The rest of a trailer from within its value on.
    Value(u64),
    /// The line feed of a trailer.
    ValueFeed(u64),
    /// The last line feed.
    LastFeed,
}

/// What comes next in a body.
#[derive(Clone, Copy)]
pub(crate) enum Place {
    /// Nothing.
    Done,
    /// So many bytes, at least one.
    Sized(u64),
    /// All bytes up to the end of the stream.
    UntilClose,
    /// So many bytes of a chunk, at least one.
    Content(u64),
    /// What is around the chunks.
    Framed(Frame),
}

// The number that a hexadecimal digit writes.
fn digit_of(byte: u8) -> Option<u8>
    ensures { MatchOption result (is_ascii_hexdigit byte ≡ false)
        (λ digit. (is_ascii_hexdigit byte ≡ true) × (digit ≡ digit_value byte) × (digit < 16)) }
{
    match byte {
        b'0'..=b'9' => Some(byte - b'0'),
        b'A'..=b'F' => Some(byte - b'A' + 10),
        b'a'..=b'f' => Some(byte - b'a' + 10),
        _ => None,
    }
}

// What follows a digit in the line of a chunk, behind so many that write that value.
fn after_digit(count: u8, value: u64, digit: u8) -> Option<Place>
    requires { digit < 16 }
    ensures { MatchOption result ((16 ≤ count) ⊎ (1152921504606846976 ≤ value))
        (λ next. (count < 16) × (next ≡ Place.Framed (Frame.Size (count + 1) (value * 16 + digit)))) }
{
    if count >= DIGIT_LIMIT || value >= VALUE_LIMIT {
        return None;
    }
    Some(Place::Framed(Frame::Size(count + 1, value * 16 + digit as u64)))
}

// What follows a byte in the line of a chunk, of whose size so many digits came.
fn after_size(count: u8, value: u64, byte: u8) -> Option<Place>
    ensures { MatchOption result (Blocks (Frame.Size count value) byte) (Follows (Frame.Size count value) byte) }
{
    if let Some(digit) = digit_of(byte) {
        return after_digit(count, value, digit);
    }
    if count == 0 {
        return None;
    }
    match byte {
        b';' => Some(Place::Framed(Frame::Extension(value, EXTENSION_LIMIT))),
        b'\r' => Some(Place::Framed(Frame::SizeFeed(value))),
        _ => None,
    }
}

// What follows a byte of an extension.
fn after_extension(size: u64, room: u64, byte: u8) -> Option<Place>
    ensures { MatchOption result (Blocks (Frame.Extension size room) byte) (Follows (Frame.Extension size room) byte) }
{
    if byte == b'\r' {
        return Some(Place::Framed(Frame::SizeFeed(size)));
    }
    if room == 0 || !is_header_value_token(byte) {
        return None;
    }
    Some(Place::Framed(Frame::Extension(size, room - 1)))
}

// What follows the line of a chunk of that size.
fn after_line(size: u64) -> Place
    ensures { (text : List ℕ) → Remains result text ↔ ((n : ℕ) × AfterLine n size text) }
{
    if size == 0 {
        Place::Framed(Frame::Trailer(TRAILER_LIMIT))
    } else {
        Place::Content(size)
    }
}

// What follows a byte at the start of a trailer or of the last line.
fn after_start(room: u64, byte: u8) -> Option<Place>
    ensures { MatchOption result (Blocks (Frame.Trailer room) byte) (Follows (Frame.Trailer room) byte) }
{
    if byte == b'\r' {
        return Some(Place::Framed(Frame::LastFeed));
    }
    if room == 0 || !is_header_name_token(byte) {
        return None;
    }
    Some(Place::Framed(Frame::Name(room - 1)))
}

// What follows a byte in the name of a trailer.
fn after_name(room: u64, byte: u8) -> Option<Place>
    ensures { MatchOption result (Blocks (Frame.Name room) byte) (Follows (Frame.Name room) byte) }
{
    if room == 0 {
        return None;
    }
    if byte == b':' {
        return Some(Place::Framed(Frame::Value(room - 1)));
    }
    if !is_header_name_token(byte) {
        return None;
    }
    Some(Place::Framed(Frame::Name(room - 1)))
}

// What follows a byte in the value of a trailer.
fn after_value(room: u64, byte: u8) -> Option<Place>
    ensures { MatchOption result (Blocks (Frame.Value room) byte) (Follows (Frame.Value room) byte) }
{
    if room == 0 {
        return None;
    }
    if byte == b'\r' {
        return Some(Place::Framed(Frame::ValueFeed(room - 1)));
    }
    if !is_header_value_token(byte) {
        return None;
    }
    Some(Place::Framed(Frame::Value(room - 1)))
}

// What follows the line feed of a trailer.
fn after_trailer(room: u64, byte: u8) -> Option<Place>
    ensures { MatchOption result (Blocks (Frame.ValueFeed room) byte) (Follows (Frame.ValueFeed room) byte) }
{
    if room == 0 {
        return None;
    }
    expect(byte, b'\n', Place::Framed(Frame::Trailer(room - 1)))
}

// What follows the byte where it has to be that one.
fn expect(byte: u8, wanted: u8, next: Place) -> Option<Place>
    ensures { MatchOption result (byte ≡ wanted → ⊥) (λ place. (byte ≡ wanted) × (place ≡ next)) }
{
    if byte == wanted { Some(next) } else { None }
}

// What follows one byte of the frame.
fn after_byte(frame: Frame, byte: u8) -> Option<Place>
    ensures { MatchOption result (Blocks frame byte) (Follows frame byte) }
{
    match frame {
        Frame::Size(count, value) => after_size(count, value, byte),
        Frame::Extension(size, room) => after_extension(size, room, byte),
        Frame::SizeFeed(size) => expect(byte, b'\n', after_line(size)),
        Frame::ContentReturn => expect(byte, b'\r', Place::Framed(Frame::ContentFeed)),
        Frame::ContentFeed => expect(byte, b'\n', Place::Framed(Frame::Size(0, 0))),
        Frame::Trailer(room) => after_start(room, byte),
        Frame::Name(room) => after_name(room, byte),
        Frame::Value(room) => after_value(room, byte),
        Frame::ValueFeed(room) => after_trailer(room, byte),
        Frame::LastFeed => expect(byte, b'\n', Place::Done),
    }
}

// How many of the bytes come at once where so many are left of a body, and what follows them.
fn pass_sized(left: u64, bytes: &[u8]) -> Option<(usize, Place)>
    requires { 0 < length bytes.now }
    ensures { MatchOption result (BlocksAll (Place.Sized left) bytes.now) (λ next. Passes (Place.Sized left) bytes.now next.0 next.1) }
{
    if left == 0 {
        return None;
    }
    if left <= bytes.len() as u64 {
        return Some((left as usize, Place::Done));
    }
    Some((bytes.len(), Place::Sized(left - bytes.len() as u64)))
}

// How many of the bytes come at once where so many are left of a chunk, and what follows them.
fn pass_content(left: u64, bytes: &[u8]) -> Option<(usize, Place)>
    requires { 0 < length bytes.now }
    ensures { MatchOption result (BlocksAll (Place.Content left) bytes.now) (λ next. Passes (Place.Content left) bytes.now next.0 next.1) }
{
    if left == 0 {
        return None;
    }
    if left <= bytes.len() as u64 {
        return Some((left as usize, Place::Framed(Frame::ContentReturn)));
    }
    Some((bytes.len(), Place::Content(left - bytes.len() as u64)))
}

// How many of the bytes come at once, and what follows them.
fn step(place: Place, bytes: &[u8]) -> Option<(usize, Place)>
    requires some { 0 < length bytes.now }
    requires open { place ≢ Place.Done }
    ensures { MatchOption result (BlocksAll place bytes.now) (λ next. Passes place bytes.now next.0 next.1) }
{
    match place {
        Place::Done => None,
        Place::Sized(left) => pass_sized(left, bytes),
        Place::UntilClose => Some((bytes.len(), Place::UntilClose)),
        Place::Content(left) => pass_content(left, bytes),
        Place::Framed(frame) => match after_byte(frame, bytes[0]) {
            Some(next) => Some((1, next)),
            None => None,
        },
    }
}

/// How far a body has come.
#[derive(Clone, Copy)]
pub struct Body {
    place: Place,
}

impl Body {
    /// Returns the body that begins behind a head of that framing.
    pub fn new(framing: Framing) -> Body
        ensures { (text : List ℕ) → Completes result text ↔ IsBody framing text }
    {
        let place = match framing {
            Framing::Nothing | Framing::Sized(0) => Place::Done,
            Framing::Sized(length) => Place::Sized(length),
            Framing::Chunked => Place::Framed(Frame::Size(0, 0)),
            Framing::UntilClose => Place::UntilClose,
        };
        Body { place }
    }

    /// Passes over the bytes of the body, and returns how many of these there are: all of them, or those up to its end.
    ///
    /// Refused where what comes can't be the body; nothing more of it is to be passed on then.
    pub fn pass(&mut self, bytes: &[u8]) -> Result<usize, BadBody>
        ensures within { IfOk result (λ count. count ≤ length bytes.now) }
        ensures passed { IfOk result (λ count. (text : List ℕ) → Completes self.new text
            ↔ Completes self.old (take count bytes.now ++ text)) }
        ensures all { IfOk result (λ count. count < length bytes.now → IsEnded self.new) }
        ensures refused { OnErr result ((text : List ℕ) → ¬ (Completes self.old (bytes.now ++ text))) }
    {
        let mut passed = 0;
        while passed < bytes.len() && !self.is_done() {
            match step(self.place, &bytes[passed..]) {
                Some((count, next)) => {
                    passed += count;
                    self.place = next;
                }
                None => return Err(BadBody),
            }
        }
        Ok(passed)
    }

    /// Returns whether the body has ended.
    pub fn is_done(&self) -> bool
        ensures { IsTrue result ↔ IsEnded self.now }
    {
        match self.place {
            Place::Done => true,
            Place::Sized(_) | Place::UntilClose | Place::Content(_) | Place::Framed(_) => false,
        }
    }

    /// Returns whether the body may end here where its stream does.
    pub fn may_end(&self) -> bool
        ensures { IsTrue result ↔ Completes self.now [] }
    {
        match self.place {
            Place::Done | Place::UntilClose => true,
            Place::Sized(_) | Place::Content(_) | Place::Framed(_) => false,
        }
    }
}
