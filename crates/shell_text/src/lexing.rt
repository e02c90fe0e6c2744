// A script cut into lines, and a line into words.
ghost use Rattle.std.specs.Prelude.{◌≡◌, ◌+◌, ◌<◌, ◌≤◌, ◌==◌, IfSome, IfNone, [], ◌∷◌, length, drop, true};
ghost use Rattle.std.specs.List.{prefix_len, position, position_or_len, list_all};
ghost use Rattle.std.specs.Str.Lines.{lines, strip_carriage_return};
ghost use Rattle.shell_text.specs.Lexing.{is_blank, is_text_byte, past_blanks, words_of, behind_word};

fn is_blank(byte: u8) -> bool
    ensures { result ≡ is_blank byte }
{
    byte == b' ' || byte == b'\t'
}

fn is_text_byte(byte: u8) -> bool
    ensures { result ≡ is_text_byte byte }
{
    byte == b'\t' || (b' ' <= byte && byte <= b'~')
}

/// Whether all bytes are allowed.
pub fn is_text(line: &[u8]) -> bool
    ensures { result ≡ list_all is_text_byte line.now }
{
    line.iter().all(|byte| is_text_byte(*byte))
}

fn find_newline(bytes: &[u8]) -> Option<usize>
    ensures value { result ≡ position (λ b. b == 10) bytes.now }
    ensures within { IfSome result (λ i. i < length bytes.now) }
{
    bytes.iter().position(|b| *b == b'\n')
}

/// What stands behind the byte at this index.
fn behind(bytes: &[u8], index: usize) -> &[u8]
    requires { index < length bytes.now }
    ensures value { result.now ≡ drop (index + 1) bytes.now }
    ensures shorter { length result.now < length bytes.now }
{
    &bytes[index + 1..]
}

/// A line without the one carriage return at its end.
fn without_return(line: &[u8]) -> &[u8]
    ensures { result.now ≡ strip_carriage_return line.now }
{
    match line {
        [front @ .., b'\r'] => front,
        _ => line,
    }
}

/// The first line, and what stands behind its newline. None exactly where there is no byte.
pub fn next_line(bytes: &[u8]) -> Option<(&[u8], &[u8])>
    ensures some { IfSome result (λ r. lines bytes.now ≡ r.0.now ∷ lines r.1.now) }
    ensures none { IfNone result (lines bytes.now ≡ []) }
    ensures shorter { IfSome result (λ r. length r.1.now < length bytes.now) }
{
    if bytes.is_empty() {
        return None;
    }
    match find_newline(bytes) {
        Some(newline) => Some((without_return(&bytes[..newline]), behind(bytes, newline))),
        None => Some((bytes, &bytes[..0])),
    }
}

fn blanks_before(bytes: &[u8]) -> usize
    ensures value { result ≡ prefix_len is_blank bytes.now }
    ensures within { result ≤ length bytes.now }
{
    bytes.iter().take_while(|b| is_blank(**b)).count()
}

fn past_blanks(bytes: &[u8]) -> &[u8]
    ensures { result.now ≡ past_blanks bytes.now }
{
    &bytes[blanks_before(bytes)..]
}

/// Where the first word ends, in bytes that begin with it.
fn word_end(bytes: &[u8]) -> usize
    ensures value { result ≡ position_or_len is_blank bytes.now }
    ensures within { result ≤ length bytes.now }
{
    bytes.iter().take_while(|b| !is_blank(**b)).count()
}

/// The first word, and what stands behind it. None exactly where there is no word.
pub fn next_word(bytes: &[u8]) -> Option<(&[u8], &[u8])>
    ensures some { IfSome result (λ r. words_of bytes.now ≡ r.0.now ∷ words_of r.1.now) }
    ensures none { IfNone result (words_of bytes.now ≡ []) }
    ensures behind { IfSome result (λ r. r.1.now ≡ behind_word bytes.now) }
    ensures text { IfSome result (λ r. list_all is_text_byte bytes.now ≡ true → (list_all is_text_byte r.0.now ≡ true) × (list_all is_text_byte r.1.now ≡ true)) }
    ensures shorter { IfSome result (λ r. length r.1.now < length bytes.now) }
{
    let front = past_blanks(bytes);
    if front.is_empty() {
        return None;
    }
    Some(front.split_at(word_end(front)))
}
