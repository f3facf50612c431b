// Request 9 of document 02 tells the maker more, and changes nothing else. No code: facts about the definitions of scope.

#![tactic(auto)]
