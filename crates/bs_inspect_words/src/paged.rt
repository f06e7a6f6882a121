//! What `page` is asked.

/// `page`: the names of its files, of which that of a signature may be given, how many signals of a kind it draws at most, and the names
/// of those that it draws alone, where there are any.
#[derive(Drop)]
pub struct PageRequest<'a> {
    pub netlist: &'a str,
    pub report: &'a str,
    pub signature: Option<&'a str>,
    pub most: u64,
    pub only: Vec<&'a str>,
}
