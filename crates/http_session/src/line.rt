//! A chunk line, byte by byte.
ghost use Rattle.std.specs.Prelude.{◌≡◌, ◌<◌, true};
ghost use Rattle.http_session.specs.Lines.{line_step, pad_step, IsState, IsStateStep};
ghost use Rattle.http_session.specs.declared.line.LineState.TheVariants as state;
ghost use Rattle.std.specs.Char.{is_ascii_hexdigit, digit_value};

/// How far a chunk line has come, with the size that its digits write.
#[derive(Clone, Copy, Debug, PartialEq, Eq)]
pub(crate) enum LineState {
    /// So many digits.
    Digits(u8, usize),
    /// The blanks behind them.
    Pad(usize),
    /// An extension.
    Text(usize),
    /// The CR.
    Return(usize),
}

/// What a byte makes of it.
#[derive(Clone, Copy, Debug, PartialEq, Eq)]
pub(crate) enum LineStep {
    Goes(LineState),
    /// The line has ended, with this size.
    Ends(usize),
    Bad,
}

impl LineState {
    pub fn start() -> LineState
        ensures value { result ≡ state.Digits 0 0 }
        ensures state { IsState result }
    {
        LineState::Digits(0, 0)
    }

    pub fn step(self, byte: u8) -> LineStep
        requires state { IsState self }
        ensures step { result ≡ line_step self byte }
        ensures state { IsStateStep result }
    {
        match self {
            LineState::Digits(count, size) => digit_step(count, size, byte),
            LineState::Pad(size) => pad_step(size, byte),
            LineState::Text(size) => match byte {
                b'\r' => LineStep::Goes(LineState::Return(size)),
                b'\n' => LineStep::Bad,
                _ => LineStep::Goes(LineState::Text(size)),
            },
            LineState::Return(size) => match byte {
                b'\n' => LineStep::Ends(size),
                _ => LineStep::Bad,
            },
        }
    }
}

#[tactic(auto, using(crate::proofs::Sizes::size_next))]
fn digit_step(count: u8, size: usize, byte: u8) -> LineStep
    requires state { IsState (state.Digits count size) }
    ensures step { result ≡ line_step (state.Digits count size) byte }
    ensures state { IsStateStep result }
{
    if byte.is_ascii_hexdigit() {
        if count == 16 {
            return LineStep::Bad;
        }
        let size = size * 16 + hex_value(byte);
        return LineStep::Goes(LineState::Digits(count + 1, size));
    }
    if count == 0 {
        return LineStep::Bad;
    }
    pad_step(size, byte)
}

fn pad_step(size: usize, byte: u8) -> LineStep
    ensures step { result ≡ pad_step size byte }
    ensures state { IsStateStep result }
{
    match byte {
        b' ' | b'\t' => LineStep::Goes(LineState::Pad(size)),
        b';' => LineStep::Goes(LineState::Text(size)),
        b'\r' => LineStep::Goes(LineState::Return(size)),
        _ => LineStep::Bad,
    }
}

/// The value of a hexadecimal digit.
fn hex_value(byte: u8) -> usize
    requires { is_ascii_hexdigit byte ≡ true }
    ensures value { result ≡ digit_value byte }
    ensures bound { result < 16 }
{
    match byte {
        b'0'..=b'9' => usize::from(byte - b'0'),
        b'a'..=b'f' => usize::from(byte - b'a' + 10),
        _ => usize::from(byte - b'A' + 10),
    }
}
