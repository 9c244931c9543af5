// No code: definitions and theorems about drawn formulas, loads and the program's buffers (document 02, 2.2).
#![tactic(auto)]
