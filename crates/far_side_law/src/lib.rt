// Silence from the far side, and the openness of two lists of voices joined: request 107, on whole
// stereo calls. No code: the statements are in specs/, and `far_side_calls` has a function whose
// contract is the first.
#![tactic(auto)]
