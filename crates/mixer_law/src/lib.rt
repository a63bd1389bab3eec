// The promises of a mixer of strips over every list of requests and turns: who is named, when at
// the latest, and what is counted. No code: the statements are in specs/.
#![tactic(auto)]
