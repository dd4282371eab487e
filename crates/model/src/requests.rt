// One call as it is asked for (01, Calls). Any six numbers make a request; what is wrong with them is a refusal, also a call or an id
// past a byte.

#[derive(Clone, Copy)]
pub struct Request {
    pub call: u32,
    pub id: u32,
    pub a: u32,
    pub b: u32,
    pub c: u32,
    pub d: u32,
}
