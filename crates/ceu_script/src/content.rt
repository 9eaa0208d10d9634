// What a line says: without its comment, and without blanks at both ends.
ghost use Rattle.std.specs.Prelude.{◌≡◌, ◌≤◌, length};
ghost use Rattle.ceu_script.specs.Content as spec;

pub fn is_blank(byte: u8) -> bool
    ensures { result ≡ spec.is_blank byte }
{
    byte == b' ' || byte == b'\t'
}

pub fn leading_blanks(text: &[u8]) -> usize
    ensures value { result ≡ spec.leading_blanks text.now }
    ensures within { result ≤ length text.now }
{
    text.iter().take_while(|b| is_blank(**b)).count()
}

fn trailing_blanks(text: &[u8]) -> usize
    ensures value { result ≡ spec.trailing_blanks text.now }
    ensures within { result ≤ length text.now }
{
    text.iter().rev().take_while(|b| is_blank(**b)).count()
}

// Where the comment begins.
fn comment_at(text: &[u8]) -> usize
    ensures value { result ≡ spec.comment_at text.now }
    ensures within { result ≤ length text.now }
{
    let mut at = 0;
    while at < text.len() {
        if text[at..].starts_with(b"//") {
            return at;
        }
        at += 1;
    }
    at
}

/// The text without its comment, and without blanks at both ends.
#[tactic(auto, unfolding(crate::specs::Content::content_of))]
pub fn content(text: &[u8]) -> &[u8]
    ensures value { result.now ≡ spec.content_of text.now }
    ensures within { length result.now ≤ length text.now }
{
    let text = &text[..comment_at(text)];
    let text = &text[leading_blanks(text)..];
    &text[..text.len() - trailing_blanks(text)]
}
