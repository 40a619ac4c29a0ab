// The lines: one for each record, the word, the count.
#![tactic(auto)]

ghost use Rattle.std.specs.Prelude.{◌≡◌, ◌*◌, ◌≤◌, length, take};
ghost use Rattle.text.specs.Text.{Puts};
ghost use Rattle.text.specs.Page.{Gains};
ghost use Rattle.capture_text.specs.Lines.{line_of, lines_of, word_text, cycles_text, last_text, text_of};

use capture::Word;
use text::Page;

// Of a record's two bytes in the answers: the number of its refusal, 0 for none, and the byte; numbers, as `capture_play`'s `Plays` has them.
fn put_line(page: &mut Page, refusal: u8, byte: u8)
    ensures { Gains page.old (line_of refusal byte) page.new }
{
    page.put_decimal(u64::from(refusal));
    page.put(b" ");
    page.put_hex(byte);
    page.put(b"\n");
}

// Two bytes of the answers make a line; `capture_play`'s `Plays` has them so (B-62).
fn put_lines(page: &mut Page, answers: &[u8])
    ensures { Gains page.old (lines_of answers.now) page.new }
{
    for [refusal, byte] in answers.as_chunks::<2>().0 {
        put_line(page, *refusal, *byte);
    }
}

#[tactic(auto, unfolding(crate::specs::Lines::word_text))]
fn word_line(word: Option<Word>) -> &'static [u8]
    ensures { result.now ≡ word_text word }
{
    match word {
        None => b"",
        Some(Word::Budget) => b"budget\n",
        Some(Word::BadKind) => b"bad kind\n",
        Some(Word::BadTail) => b"bad tail\n",
        Some(Word::BadHead) => b"bad head\n",
    }
}

fn put_cycles(page: &mut Page, n: usize)
    ensures { Gains page.old (cycles_text n) page.new }
{
    page.put(b"cycles ");
    // `as`, since std has no From of a usize for u64.
    page.put_decimal(n as u64);
    page.put(b"\n");
}

// A bad head stands alone. Word and number stay two here and below, as `text_of` takes them.
#[tactic(auto, unfolding(crate::specs::Lines::last_text), using(text::proofs::PutLaws::gains_nothing))]
fn put_last(page: &mut Page, word: Option<Word>, n: usize)
    ensures { Gains page.old (last_text word n) page.new }
{
    match word {
        None | Some(Word::Budget | Word::BadKind | Word::BadTail) => put_cycles(page, n),
        Some(Word::BadHead) => {}
    }
}

fn put_whole(page: &mut Page, answers: &[u8], word: Option<Word>, n: usize)
    ensures { Gains page.old (text_of answers.now word n) page.new }
{
    put_lines(page, answers);
    page.put(word_line(word));
    put_last(page, word, n);
}

// Of the first n records.
pub fn put_text(out: &mut [u8], answers: &[u8], word: Option<Word>, n: usize) -> usize
    requires { 2 * n ≤ length answers.now }
    ensures { Puts out.old 0 (text_of (take (2 * n) answers.now) word n) out.new result }
{
    let mut page = Page::new(out);
    put_whole(&mut page, &answers[..2 * n], word, n);
    page.used
}
