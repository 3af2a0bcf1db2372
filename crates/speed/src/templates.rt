use std::alloc::{AllocError, Global};

/// The points of a template.
const POINTS: u8 = 40;

/// The bytes of those points.
const POINT_BYTES: usize = 120;

/// Where the noise of a finger begins that nobody has enrolled.
const STRANGER: u32 = 0xF16E_0000;

/// Bytes that look like chance, the same in every run.
#[derive(Clone, Copy)]
struct Noise(u32);

impl Noise {
    /// The next byte of noise.
    fn next_byte(&mut self) -> u8 {
        self.0 = self.0.wrapping_mul(1_664_525).wrapping_add(1_013_904_223);
        (self.0 >> 24) as u8
    }
}

/// A template of so many bytes, with points of noise.
fn of_noise(heap: Global, seed: u32, size: usize) -> Result<Vec<u8>, AllocError> {
    let mut noise = Noise(seed);
    let mut template = vec![in heap; 0u8; size]?;
    if let Some((count, points)) = template.split_first_mut() {
        *count = POINTS;
        for byte in points.iter_mut().take(POINT_BYTES) {
            *byte = noise.next_byte();
        }
    }
    Ok(template)
}

/// The template of an ID.
pub(crate) fn template_of(heap: Global, id: u16, size: usize) -> Result<Vec<u8>, AllocError> {
    of_noise(heap, u32::from(id), size)
}

/// The scan of a finger that is like none of the templates.
pub(crate) fn strange_scan(heap: Global, size: usize) -> Result<Vec<u8>, AllocError> {
    of_noise(heap, STRANGER, size)
}
