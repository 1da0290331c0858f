// Where a text lies in the pool: the host cannot be handed a part of it, and slices it itself.
ghost use Rattle.std.specs.Prelude.{◌≡◌};
ghost use Rattle.checker.specs.Span.{span_of};

use text::Texts;

#[repr(C)]
#[derive(Clone, Copy)]
pub struct Span {
    pub start: usize,
    pub size: usize,
}

pub fn text_span(texts: &Texts, n: u32) -> Span
    ensures { result ≡ span_of texts.now.pool.now texts.now.records.now n }
{
    let i = n as usize;
    if texts.fits(i) {
        return Span {
            start: texts.start(i),
            size: texts.length(i),
        };
    }
    Span { start: 0, size: 0 }
}
