// What a verdict is asked about.

// l_skip and n_stack, how many matrices each commitment has, their list (three words a matrix), r, lambda, the challenges u_0 to
// u_n_stack, the claims in lambda order, the first polynomial's coefficients, the pairs and the openings.
#[derive(Clone, Copy)]
pub struct Asked<'a> {
    pub l_skip: u32,
    pub n_stack: u32,
    pub counts: &'a [u32],
    pub lists: &'a [u32],
    pub r: &'a [u32],
    pub lambda: [u32; 4],
    pub challenges: &'a [u32],
    pub claims: &'a [u32],
    pub coefficients: &'a [u32],
    pub pairs: &'a [u32],
    pub openings: &'a [u32],
}
