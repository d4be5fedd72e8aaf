/// How a node ended: its exit status, and the journal's disk.
#[derive(Drop)]
pub struct Ended<D: Drop> {
    pub status: u8,
    pub disk: D,
}
