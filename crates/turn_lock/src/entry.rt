/// One call in a history: who called, with what, and what the reply was.
#[derive(Drop)]
pub struct Entry<C, R> {
    pub caller: u32,
    pub call: C,
    pub reply: R,
}
