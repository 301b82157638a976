//! A theory of grammars whose first fault is exact.
//!
//! A grammar is data: `specs/Code` has the forms of productions, `texts` says which tokens each spells at which depth, and `read` reads
//! them with one token of look-ahead. `fine` is a test of a production, computed from the kinds that begin each part and those with which
//! it may go on (`specs/Info`).
//!
//! What is proved, for every table of productions that passes the tests (`IsGood`): `read` answers exactly (`exact` in `proofs/Codes`). It
//! gives the only reading of the longest viable prefix, or the first token with which no text of the budget's depth goes on, and tells
//! whether a deeper text would (`Answer` in `specs/Language`).
#![tactic(auto)]
