// The cases of the crate loader: a bundle loaded into a buffer of so many bytes, each 165.
use cases::{Case, Said, Word, lent};
use loader::Loaded;

// The largest buffer that is lent.
const ROOM: usize = 98304;

fn answered(loaded: Loaded, room: usize) -> Said<'static> {
    match loaded {
        Loaded::Done { length } => Said::Line([Some(0), Some(length), None], room),
        Loaded::Refused { why, place, file } => {
            let code = usize::from(refusals::number_of(why));
            Said::Line([Some(code), Some(place), Some(file)], room)
        }
    }
}

// `load T ROOM`: 0 and how many bytes were written, or a refusal's number, place and file; then the buffer.
pub fn load(case: Case, made: &mut [u8], files: &[u8]) -> Said<'static> {
    let room = case.number(1) as usize;
    if room > ROOM {
        return Said::Word(Word::NoCase);
    }
    answered(loader::load(case.number(0), files, lent(made, room)), room)
}
