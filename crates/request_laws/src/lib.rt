#![tactic(auto)]

// Laws of requests and codecs: one outcome for each call, and the wrong versions that their statements refuse. There is no code
// here, and it stands on definitions, on `uniqueness` and on the table of `cases`.
