// A step's seven numbers, any at all.
#[derive(Clone, Copy)]
pub struct Step {
    pub code: u32,
    pub agent: u32,
    pub message: u32,
    pub n: u32,
    pub c: u32,
    pub cf: u32,
    pub reading: u32,
}
