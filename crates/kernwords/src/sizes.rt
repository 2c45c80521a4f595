//! How large the books are.
ghost use Rattle.kernwords.specs.Sizes.{KernSized, LigatureSized};

use console::request::Request;
use filter::{FilterFault, MOST_BLOCKS, Plan};

/// The plan of a book's filter, how many blocks that has, and how many records its list has room for.
#[derive(Clone, Copy)]
pub struct Size {
    pub plan: Plan,
    pub blocks: u32,
    pub records: usize,
}

/// The size of the kerning book: that of the book that ships, or one of the plan and with the blocks that are asked for, at most 16,640, and a long list.
pub fn kern_size(request: Option<Request>) -> Result<Size, FilterFault>
    ensures { KernSized request result }
{
    match request {
        None => Ok(Size {
            plan: Plan::new(8, 24)?,
            blocks: 5,
            records: 256,
        }),
        Some(request) => Ok(Size {
            plan: request.plan()?,
            blocks: request.blocks.min(MOST_BLOCKS as u32),
            records: 65_536,
        }),
    }
}

/// The size of the ligature book, which is the one that ships.
pub fn ligature_size() -> Size
    ensures { LigatureSized result }
{
    let Ok(plan) = Plan::new(6, 16) else {
        unreachable!()
    };
    Size {
        plan,
        blocks: 2,
        records: 64,
    }
}
