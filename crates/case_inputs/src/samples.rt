//! A tag table and profiles that the case tables and the timed programs share.

/// A tag table of six way tags and three node tags.
pub const LOOK: &str = "---lookupversion:10
---minorversion:1

---context:way
reversedirection;0000000000 yes
highway;0000000400 residential
highway;0000000300 primary
highway;0000000200 track
highway;0000000100 cycleway
oneway;0000000020 yes true 1
oneway;0000000010 no
bicycle;0000000020 yes
bicycle;0000000010 no
junction;0000000010 roundabout
route_bicycle_rcn;0000000000 yes

---context:node
nodeaccessgranted;0000000000 yes
barrier;0000000020 gate
barrier;0000000010 bollard
bicycle;0000000020 yes
bicycle;0000000010 no
";

/// A profile for trekking, with a form of each kind.
pub const TREK: &str = "---context:global   # numbers are this project's own
assign consider_elevation   true
assign downhillcost   = if consider_elevation then 60 else 0
assign downhillcutoff = 1.5
assign uphillcost     0
assign stick_to_cycleroutes 0
---context:way
assign any_cycleroute    = route_bicycle_rcn=yes
assign nodeaccessgranted = any_cycleroute
assign turncost    = if junction=roundabout then 0 else 90
assign initialcost = if highway=track then 50 else 0
assign wrongway    = and oneway=yes reversedirection=yes
assign bikeaccess  = switch bicycle= true not bicycle=no
assign costfactor =
  if wrongway then 10000
  else if ( not bikeaccess ) then 10000
  else if highway= then 10000
  else if and any_cycleroute stick_to_cycleroutes then 0.5
  else if any_cycleroute then 1
  else switch highway=cycleway 1
       switch highway=residential 1.1
       switch highway=primary 1.6 2
---context:node
assign nodeaccess  = or nodeaccessgranted=yes barrier=
assign initialcost = if nodeaccess then 0 else 20
";

/// A profile in which a gate stops who wasn't granted to pass.
pub const GATE: &str = "---context:way assign nodeaccessgranted highway=cycleway assign costfactor 1
---context:node assign initialcost switch and barrier=gate not nodeaccessgranted=yes 1000000 0";
