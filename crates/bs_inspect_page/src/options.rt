//! What is asked of a page.
use bs_inspect_html::SignatureFile;

/// What is asked of a page: the names of the two files, the signature where one is given, the names of the signals that are drawn alone,
/// where there are any, and how many signals are drawn at most.
#[derive(Clone, Copy)]
pub struct PageOptions<'a> {
    pub netlist: &'a str,
    pub report: &'a str,
    pub signature: Option<SignatureFile<'a>>,
    pub only: &'a [&'a str],
    pub most: u64,
}
