// The words that begin lines.
ghost use Rattle.std.specs.Prelude.{◌≡◌};
ghost use Rattle.shell_text.specs.Keywords.{keyword_named};

/// What the first word of a line asks for.
#[derive(Clone, Copy, Debug, PartialEq, Eq)]
pub enum Keyword {
    Run,
    Kill,
    Move,
    Feed,
    Eof,
    Wait,
    After,
    Held,
    Slots,
}

/// The keyword of this name.
pub fn keyword_named(name: &[u8]) -> Option<Keyword>
    ensures { result ≡ keyword_named name.now }
{
    if name == b"run".as_slice() {
        return Some(Keyword::Run);
    }
    if name == b"kill".as_slice() {
        return Some(Keyword::Kill);
    }
    if name == b"move".as_slice() {
        return Some(Keyword::Move);
    }
    if name == b"type".as_slice() {
        return Some(Keyword::Feed);
    }
    if name == b"eof".as_slice() {
        return Some(Keyword::Eof);
    }
    if name == b"wait".as_slice() {
        return Some(Keyword::Wait);
    }
    if name == b"after".as_slice() {
        return Some(Keyword::After);
    }
    if name == b"held".as_slice() {
        return Some(Keyword::Held);
    }
    if name == b"slots".as_slice() {
        return Some(Keyword::Slots);
    }
    None
}
