// What a certificate says, and the routes of a longest scan.

use rules::unit::Module;

/// The certificate of a program: the number of its lines, the greatest number of cells that are stacked anywhere in a unit, and the greatest
/// number of steps of a scan.
#[derive(Clone, Copy)]
pub struct Certificate {
    pub lines: usize,
    pub stack: u32,
    pub scan: u32,
}

/// The routes of one longest scan, each as its lines in their order: of INPUT, of the block module, which is BLOCK_INIT or BLOCK_DONE,
/// of MAIN, and of each mechanism, in the order of the mechanisms.
#[derive(Drop)]
pub struct LongestScan {
    pub input: Vec<usize>,
    pub block_module: Module,
    pub block: Vec<usize>,
    pub main: Vec<usize>,
    pub mechanisms: Vec<Vec<usize>>,
}
