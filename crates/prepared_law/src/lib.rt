// The block of `PreparedSpectrum::new` gives the stereo call the table that
// `MaskWorkspace::prepare` writes. No code: the statement is in specs/, and `paired_calls` has a
// function whose contract it is.
#![tactic(auto)]
