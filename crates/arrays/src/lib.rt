// What arrays hold, as lists: parts of stride s, loops that fill an array, elements at places. Laws for the crates above; there is no code.
#![tactic(auto)]
