/// The calls that fail, by their numbers from 0 on.
#[derive(Drop)]
pub struct Faults {
    pub source: Vec<u64>,
    pub sink: Vec<u64>,
    pub compress: Vec<u64>,
}
