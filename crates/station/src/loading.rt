// From an image file to a place that holds its program.
use crate::failure::Failure;
use crate::files::read_bytes;
use verdict::place::Place;

/// A place in which the program of an image file is mounted, or the refusal that the image earns.
pub(crate) fn load(rt: &HostRuntime, file: String) -> Result<Place, Failure> {
    let heap = rt.alloc();
    let bytes = read_bytes(rt, file)?;
    let mut place = Place::new(heap)?;
    place.load(heap, bytes.as_slice())?;
    Ok(place)
}
