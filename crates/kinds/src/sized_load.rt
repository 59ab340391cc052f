// A load whose n and sizes were judged fine: the functions that read further take it instead of its frame.
ghost use Rattle.kinds.specs.Load.{Sized};

use frames::frame::Frame;

#[derive(Clone, Copy)]
pub struct SizedLoad<'a> {
    pub frame: Frame<'a>,
    ghost sized: { Sized frame.line.now },
}
