// What every call of a run is given alike.

// l_skip and n_stack, how many matrices each commitment has, their list (three words a matrix), r and lambda.
#[derive(Clone, Copy)]
pub struct Given<'a> {
    pub l_skip: u32,
    pub n_stack: u32,
    pub counts: &'a [u32],
    pub lists: &'a [u32],
    pub r: &'a [u32],
    pub lambda: [u32; 4],
}
