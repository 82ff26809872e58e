/// One member of the desk history: an entry, the number of the caller whose it was, and the reply. No
/// value of it is made; clauses speak of it.
pub struct Call<E, R> {
    pub by: u32,
    pub entry: E,
    pub reply: R,
}
