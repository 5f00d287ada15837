// Cases of reading a card's words into lists, of writing a card from lists, and of mending a card in place.
use scrub::Counts;
use stream::{Differs, Expected};

pub fn read_words(input: &[u8], expected: &mut Expected) -> Result<(), Differs> {
    let mut data = [77u16; 820];
    let mut others = [77u16; 24];
    let verdict = listing::read_words(
        stream::rest(input, 4),
        stream::first_mut(&mut data, stream::size_at(input, 0)),
        stream::first_mut(&mut others, stream::size_at(input, 2)),
    );
    expected.same_verdict(verdict)?;
    expected.all_same(&data)?;
    expected.all_same(&others)
}

pub fn write(input: &[u8], expected: &mut Expected) -> Result<(), Differs> {
    let mut data = [0u16; 820];
    let mut others = [0u16; 24];
    let mut image = [77u8; 1680];
    stream::fill(input, 6, &mut data);
    stream::fill(input, 1646, &mut others);
    let verdict = writer::write(
        stream::first(&data, stream::size_at(input, 0)),
        stream::first(&others, stream::size_at(input, 2)),
        stream::first_mut(&mut image, stream::size_at(input, 4)),
    );
    expected.same_verdict(verdict)?;
    expected.all_same(&image)
}

pub fn scrub(input: &[u8], expected: &mut Expected) -> Result<(), Differs> {
    let mut image = [0u8; 1680];
    let mut changed = [77u16; 840];
    let mut damaged = [77u16; 840];
    let given = stream::rest(input, 4);
    let length = given.len();
    stream::fill(given, 0, &mut image);
    let scrubbed = scrub::scrub(
        stream::first_mut(&mut image, length),
        stream::first_mut(&mut changed, stream::size_at(input, 0)),
        stream::first_mut(&mut damaged, stream::size_at(input, 2)),
    );
    let counts = scrubbed.unwrap_or(Counts {
        changed: 0,
        damaged: 0,
    });
    expected.same_verdict(scrubbed.map(|_| ()))?;
    expected.same_size(counts.changed)?;
    expected.same_size(counts.damaged)?;
    expected.all_same(&image)?;
    expected.all_same(&changed)?;
    expected.all_same(&damaged)
}
