// The promises of a bank of voices over every list of calls: what is read is what is present, and
// the order of arrival is not audible. No code: the statements are in specs/, and `paired_calls`
// has a function whose contract the second is.
#![tactic(auto)]
