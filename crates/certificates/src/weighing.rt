// A held study and the weights of a certificate for it. It stands for that fact in the signatures of the judges.
ghost use Rattle.certificates.specs.Certify.{WeightsFor};

use tables::held_study::HeldStudy;

#[derive(Clone, Copy)]
pub struct Weighing<'a> {
    pub study: HeldStudy<'a>,
    // 'Ordered as in a load': a weight for each choice, then for each pair's two choices.
    pub weights: &'a [u64],
    ghost fit: { WeightsFor study.numbers.now weights.now },
}
