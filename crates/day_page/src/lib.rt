// What the day says: it walks the sample, words the report of the walk and lists the record. It stands over `day_way`, `day_report` and
// `record_listing`. Inner: `day` stands over it. It asks nothing.
#![tactic(auto)]

ghost use Rattle.std.specs.Prelude.{length};
ghost use Rattle.day_page.specs.Page.{Inside};

// Where the report ends in its buffer, and where the listing starts in its own.
#[derive(Clone, Copy)]
pub struct Page {
    pub end: usize,
    pub start: usize,
}

// Walks the sample into a new record of form 2, and puts the report at the start of one buffer and the listing at the end of the other.
pub fn fill(
    sample: &[u8],
    frames: usize,
    buffer: &mut [u8],
    text: &mut [u8],
    lines: &mut [u8],
) -> Option<Page>
    ensures { Inside result (length text.old) (length lines.old) }
{
    let t = day_way::walk(sample, buffer, 5);
    let end = day_report::report(text, frames, buffer.len(), t);
    // Never none: an entry is stored only where there is room for it, and the buffer has the room that every listing fits.
    let record = buffer.get(..t.used)?;
    let start = record_listing::list(record, lines)?;
    Some(Page { end, start })
}
