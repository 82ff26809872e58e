/// An object as it stands: its latest generation, by number and body, and the session that owns it.
#[derive(Drop)]
pub struct Object<B> {
    pub number: u64,
    pub body: B,
    pub owner: Option<u32>,
}
