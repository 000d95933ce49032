// What a dealer asks: an order in two texts, and how many steps the search may take.
#[derive(Clone, Copy, Drop)]
pub struct Request<'a> {
    pub rules: &'a [u8],
    pub picks: &'a [u8],
    pub budget: u64,
}
