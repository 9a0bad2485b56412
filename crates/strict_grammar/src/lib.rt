// The grammars of path data, SVG 1.1 Second Edition, 8.3.9, and SVG 2, 9.3.9, as definitions in
// specs/ with the edition as a parameter, and their laws in proofs/. There is no code here: crates
// `strict_argument` and `strict` read words of them.
#![tactic(auto)]

// The edition whose grammar decides: SVG 1.1 Second Edition of 16 August 2011, or the Candidate
// Recommendation of SVG 2 of 4 October 2018.
#[derive(Clone, Copy, Debug, PartialEq, Eq)]
pub enum Edition {
    Svg11,
    Svg2,
}
