// The order in which the kinds of a turn without a letter take turns.
ghost use Rattle.std.specs.Prelude.{◌≡◌, cond};
ghost use Rattle.node_core.specs.Rotation.{kind_after, if_ready, taken_at, picked, rotated};

/// What a turn without a letter does: home serves a held call, a node lets a context run on, home carries out the next line of the script, a node sends a
/// half of its vector.
#[derive(Clone, Copy, Debug, PartialEq, Eq)]
pub enum Kind {
    Retry,
    Context,
    Line,
    Half,
}

/// The kind that was taken last, and the pid of the context that ran last.
#[derive(Clone, Copy, Debug, PartialEq, Eq)]
pub struct Rotation {
    pub last: Kind,
    pub after: u32,
}

/// Which kinds have something to do, of a context its pid; and whether a half is due since sixteen quanta of steps, which goes before a context.
#[derive(Clone, Copy, Debug, PartialEq, Eq)]
pub struct Ready {
    pub retry: bool,
    pub context: Option<u32>,
    pub line: bool,
    pub half: bool,
    pub late: bool,
}

/// The kind that follows in the rotation.
fn kind_after(kind: Kind) -> Kind
    ensures { result ≡ kind_after kind }
{
    match kind {
        Kind::Retry => Kind::Context,
        Kind::Context => Kind::Line,
        Kind::Line => Kind::Half,
        Kind::Half => Kind::Retry,
    }
}

/// The kind, where it is ready.
fn if_ready(ready: bool, kind: Kind) -> Option<Kind>
    ensures { result ≡ if_ready ready kind }
{
    if ready { Some(kind) } else { None }
}

/// The kind that is taken where the scan comes to this one.
fn taken_at(kind: Kind, ready: &Ready) -> Option<Kind>
    ensures { result ≡ taken_at kind ready.now }
{
    match kind {
        Kind::Retry => if_ready(ready.retry, kind),
        Kind::Context => {
            if ready.late {
                return Some(Kind::Half);
            }
            if_ready(ready.context.is_some(), kind)
        }
        Kind::Line => if_ready(ready.line, kind),
        Kind::Half => if_ready(ready.half, kind),
    }
}

impl Rotation {
    /// A kind was taken, of a context that of this pid.
    pub fn take(&mut self, kind: Kind, context: Option<u32>)
        ensures { self.new ≡ rotated self.old kind context }
    {
        self.last = kind;
        if let (Kind::Context, Some(pid)) = (kind, context) {
            self.after = pid;
        }
    }
}

/// The kind of the next turn without a letter: the first that is ready, from the one after the last taken. None exactly where none is.
pub fn picked(last: Kind, ready: &Ready) -> Option<Kind>
    ensures { result ≡ picked last ready.now }
{
    let first = kind_after(last);
    if let Some(kind) = taken_at(first, ready) {
        return Some(kind);
    }
    let second = kind_after(first);
    if let Some(kind) = taken_at(second, ready) {
        return Some(kind);
    }
    let third = kind_after(second);
    if let Some(kind) = taken_at(third, ready) {
        return Some(kind);
    }
    taken_at(kind_after(third), ready)
}
