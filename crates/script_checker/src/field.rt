//! The fields of a command, and what is right in each.
ghost use Rattle.std.specs.Prelude.{◌≡◌, ◌^◌, ◌≤◌, length};
ghost use Rattle.std.specs.Result.{is_ok, result_ok};
ghost use Rattle.stream_script.specs.Fields.{number_field, queue_field, stream_field, grain_field, token_field, bare_name_field, sub_field, name_field};
ghost use Rattle.script_checker.specs.Fields.{is_right_word, start_word};

use stream_ident::{
    GrainId, MOST_SILOS, Name, PAYLOAD_BYTES, StreamId, Token, parse_number, split_once,
};

/// What stands at a place of a command.
#[derive(Clone, Copy)]
pub(crate) enum Field {
    /// A stream.
    Stream,
    /// A grain.
    Grain,
    /// A kind or a namespace.
    Name,
    /// A subscription with its queue.
    Sub,
    /// A token.
    Token,
    /// A queue.
    Queue,
    /// A silo.
    Silo,
    /// A number below 2^64.
    Number,
    /// A number below 2^32.
    ShortNumber,
    /// How a subscription starts.
    Start,
    /// A text.
    Text,
}

impl Field {
    /// Whether a piece is right there, given whether it is the last one of its line.
    pub(crate) fn fits(self, piece: &[u8], queues: usize, is_last: bool) -> bool {
        match self {
            Field::Text => match piece {
                [b'"', text @ .., b'"'] => unescaped_len(text) <= PAYLOAD_BYTES,
                _ => true,
            },
            _ => self.fits_word(piece, queues, is_last),
        }
    }

    /// Whether a word is right there, given whether it is the last one of its line.
    fn fits_word(self, word: &[u8], queues: usize, is_last: bool) -> bool
        ensures { result ≡ is_right_word self queues is_last word.now }
    {
        match self {
            Field::Stream => is_stream(word),
            Field::Grain => is_grain(word),
            Field::Name => is_name(word),
            Field::Sub => is_sub(word, queues),
            Field::Token => is_token(word),
            Field::Queue => is_queue(word, queues),
            Field::Silo => is_silo(word),
            Field::Number => is_number(word),
            Field::ShortNumber => short_number(word).is_some(),
            Field::Start => word == start_word(is_last).as_bytes(),
            Field::Text => true,
        }
    }

    /// What is right there.
    pub(crate) fn expected(self) -> &'static str {
        match self {
            Field::Stream => {
                "a stream is two names with a slash between them, each of 1 to 64 bytes of A-Z a-z 0-9 _ . -"
            }
            Field::Grain => {
                "a grain is two names with a slash between them, each of 1 to 64 bytes of A-Z a-z 0-9 _ . -"
            }
            Field::Name => "a name has 1 to 64 bytes of A-Z a-z 0-9 _ . -",
            Field::Sub => {
                "a subscription is the number of a queue that there is, a colon and a name there"
            }
            Field::Token => "a token is two numbers with a full stop between them",
            Field::Queue => "a queue is a number below that of the queues",
            Field::Silo => "a silo is a number from 0 to 15",
            Field::Number => "this number is below 2^64 and has no leading zeros",
            Field::ShortNumber => "this number is below 2^32 and has no leading zeros",
            Field::Start => "a subscription starts with `latest`, or with `from` and a token",
            Field::Text => "a text has at most 256 bytes",
        }
    }

    /// How the piece might be mended.
    pub(crate) fn hint(self, piece: &[u8], is_last: bool) -> Option<&'static str> {
        match self {
            Field::Stream if !piece.contains(&b'/') => Some("write NAMESPACE/KEY, as orders/17"),
            Field::Grain if !piece.contains(&b'/') => Some("write KIND/KEY, as clerk/17"),
            Field::Sub if !piece.contains(&b':') => {
                Some("write the queue in front, as 0:3 or 0:log@orders/17")
            }
            Field::Token => Some("write the number of a batch and the index in it, as 7.2"),
            Field::Start => Some(start_hint(piece, is_last)),
            _ => None,
        }
    }
}

/// The word of a subscription's start: what stands behind it is a token, or nothing.
fn start_word(is_last: bool) -> &'static str
    ensures { result.now ≡ start_word is_last }
{
    if is_last { "latest" } else { "from" }
}

/// How the start of a subscription might be mended.
fn start_hint(piece: &[u8], is_last: bool) -> &'static str {
    match piece {
        b"from" => "behind `from` stands a token, as in `from 7.2`",
        b"latest" => "nothing stands behind `latest`",
        _ if is_last => "write `latest`, or `from 0.0` to begin with the first event",
        _ => "write `from`",
    }
}

/// Whether this is a stream.
#[tactic(auto, unfolding(stream_script::specs::Fields::stream_field))]
fn is_stream(word: &[u8]) -> bool
    ensures { result ≡ is_ok (stream_field word.now) }
{
    match split_once(word, b'/') {
        None => false,
        Some((namespace, key)) => StreamId::new(namespace, key).is_ok(),
    }
}

/// Whether this is a grain.
#[tactic(auto, unfolding(stream_script::specs::Fields::grain_field))]
fn is_grain(word: &[u8]) -> bool
    ensures { result ≡ is_ok (grain_field word.now) }
{
    match split_once(word, b'/') {
        None => false,
        Some((kind, key)) => GrainId::new(kind, key).is_ok(),
    }
}

/// Whether this is a name.
#[tactic(auto, unfolding(stream_script::specs::Fields::bare_name_field))]
fn is_name(word: &[u8]) -> bool
    ensures { result ≡ is_ok (bare_name_field word.now) }
{
    Name::new(word).is_ok()
}

/// Whether this is a token.
#[tactic(auto, unfolding(stream_script::specs::Fields::token_field))]
fn is_token(word: &[u8]) -> bool
    ensures { result ≡ is_ok (token_field word.now) }
{
    Token::parse(word).is_ok()
}

/// Whether this is a number below 2^64.
#[tactic(auto, unfolding(stream_script::specs::Fields::number_field))]
fn is_number(word: &[u8]) -> bool
    ensures { result ≡ is_ok (number_field (2 ^ 64) word.now) }
{
    parse_number(word).is_some()
}

/// The number below 2^32 that this is.
#[tactic(auto, unfolding(stream_script::specs::Fields::number_field))]
fn short_number(word: &[u8]) -> Option<u32>
    ensures { result ≡ result_ok (number_field (2 ^ 32) word.now) }
{
    u32::try_from(parse_number(word)?).ok()
}

/// Whether this is the number of a silo.
#[tactic(auto, unfolding(stream_script::specs::Fields::number_field))]
fn is_silo(word: &[u8]) -> bool
    ensures { result ≡ is_ok (number_field MOST_SILOS word.now) }
{
    match parse_number(word) {
        None => false,
        Some(silo) => silo < MOST_SILOS as u64,
    }
}

/// Whether this is a queue.
#[tactic(auto, unfolding(stream_script::specs::Fields::queue_field))]
fn is_queue(word: &[u8], queues: usize) -> bool
    ensures { result ≡ is_ok (queue_field queues word.now) }
{
    match short_number(word) {
        None => false,
        Some(queue) => (queue as usize) < queues,
    }
}

/// Whether this is a subscription of a queue that there is.
#[tactic(auto, unfolding(stream_script::specs::Fields::sub_field, stream_script::specs::Fields::sub_parts))]
fn is_sub(word: &[u8], queues: usize) -> bool
    ensures { result ≡ is_ok (sub_field queues word.now) }
{
    match split_once(word, b':') {
        None => false,
        Some((queue, name)) => {
            !name.contains(&b':') && is_queue(queue, queues) && is_sub_name(name)
        }
    }
}

/// Whether this is the name of a subscription: a number, or `KIND@NS/KEY`.
#[tactic(auto, unfolding(stream_script::specs::Fields::name_field, stream_script::specs::Fields::explicit_field, stream_script::specs::Fields::implicit_field))]
fn is_sub_name(name: &[u8]) -> bool
    ensures { result ≡ is_ok (name_field name.now) }
{
    match split_once(name, b'@') {
        None => short_number(name).is_some_and(|number| number > 0),
        Some((kind, stream)) => Name::new(kind).is_ok() && is_stream(stream),
    }
}

/// How many bytes of a text are left where an escape is one.
fn unescaped_len(text: &[u8]) -> usize
    ensures { result ≤ length text.now }
{
    let mut len = 0;
    let mut is_escaped = false;
    for byte in text {
        is_escaped = !is_escaped && *byte == b'\\';
        if !is_escaped {
            len += 1;
        }
    }
    len
}
